//! Two dictionaries as text, one for FIX.4.2 and one for FIX.4.4. The tests here and in fix_validate read them.

/// The dictionary of the examples for FIX.4.2, in the JSON form that `Dictionary::read` reads: the
/// session's messages, an order and an execution report. It is not the dictionary of FIX.4.2. The
/// same text stands in `examples/FIX42.json`.
pub const SAMPLE_42: &str = r#"{
  "begin": "FIX.4.2",
  "fields": [
    { "tag": 1, "name": "F1", "type": "STRING" },
    { "tag": 6, "name": "F6", "type": "PRICE" },
    { "tag": 7, "name": "F7", "type": "SEQNUM" },
    { "tag": 8, "name": "F8", "type": "STRING" },
    { "tag": 9, "name": "F9", "type": "LENGTH" },
    { "tag": 10, "name": "F10", "type": "STRING" },
    { "tag": 11, "name": "F11", "type": "STRING" },
    { "tag": 14, "name": "F14", "type": "QTY" },
    { "tag": 16, "name": "F16", "type": "SEQNUM" },
    { "tag": 17, "name": "F17", "type": "STRING" },
    { "tag": 20, "name": "F20", "type": "CHAR" },
    { "tag": 21, "name": "F21", "type": "CHAR", "values": ["1", "2", "3"] },
    { "tag": 34, "name": "F34", "type": "SEQNUM" },
    { "tag": 35, "name": "F35", "type": "STRING" },
    { "tag": 36, "name": "F36", "type": "SEQNUM" },
    { "tag": 37, "name": "F37", "type": "STRING" },
    { "tag": 38, "name": "F38", "type": "QTY" },
    { "tag": 39, "name": "F39", "type": "CHAR" },
    { "tag": 40, "name": "F40", "type": "CHAR" },
    { "tag": 43, "name": "F43", "type": "BOOLEAN" },
    { "tag": 44, "name": "F44", "type": "PRICE" },
    { "tag": 45, "name": "F45", "type": "SEQNUM" },
    { "tag": 49, "name": "F49", "type": "STRING" },
    { "tag": 50, "name": "F50", "type": "STRING" },
    { "tag": 52, "name": "F52", "type": "UTCTIMESTAMP" },
    { "tag": 54, "name": "F54", "type": "CHAR", "values": ["1", "2", "3", "4", "5", "6", "7", "8", "9"] },
    { "tag": 55, "name": "F55", "type": "STRING" },
    { "tag": 56, "name": "F56", "type": "STRING" },
    { "tag": 57, "name": "F57", "type": "STRING" },
    { "tag": 58, "name": "F58", "type": "STRING" },
    { "tag": 60, "name": "F60", "type": "UTCTIMESTAMP" },
    { "tag": 78, "name": "F78", "type": "NUMINGROUP" },
    { "tag": 79, "name": "F79", "type": "STRING" },
    { "tag": 80, "name": "F80", "type": "QTY" },
    { "tag": 89, "name": "F89", "type": "DATA" },
    { "tag": 93, "name": "F93", "type": "LENGTH" },
    { "tag": 95, "name": "F95", "type": "LENGTH" },
    { "tag": 96, "name": "F96", "type": "DATA" },
    { "tag": 97, "name": "F97", "type": "BOOLEAN" },
    { "tag": 98, "name": "F98", "type": "INT" },
    { "tag": 108, "name": "F108", "type": "INT" },
    { "tag": 112, "name": "F112", "type": "STRING" },
    { "tag": 115, "name": "F115", "type": "STRING" },
    { "tag": 116, "name": "F116", "type": "STRING" },
    { "tag": 122, "name": "F122", "type": "UTCTIMESTAMP" },
    { "tag": 123, "name": "F123", "type": "BOOLEAN" },
    { "tag": 128, "name": "F128", "type": "STRING" },
    { "tag": 129, "name": "F129", "type": "STRING" },
    { "tag": 141, "name": "F141", "type": "BOOLEAN" },
    { "tag": 150, "name": "F150", "type": "CHAR" },
    { "tag": 151, "name": "F151", "type": "QTY" },
    { "tag": 371, "name": "F371", "type": "INT" },
    { "tag": 372, "name": "F372", "type": "STRING" },
    { "tag": 373, "name": "F373", "type": "INT" },
    { "tag": 380, "name": "F380", "type": "INT" },
    { "tag": 447, "name": "F447", "type": "CHAR" },
    { "tag": 448, "name": "F448", "type": "STRING" },
    { "tag": 452, "name": "F452", "type": "INT" },
    { "tag": 453, "name": "F453", "type": "NUMINGROUP" }
  ],
  "header": [
    { "tag": 8, "required": true },
    { "tag": 9, "required": true },
    { "tag": 35, "required": true },
    { "tag": 34, "required": true },
    { "tag": 49, "required": true },
    { "tag": 52, "required": true },
    { "tag": 56, "required": true },
    { "tag": 43, "required": false },
    { "tag": 50, "required": false },
    { "tag": 57, "required": false },
    { "tag": 97, "required": false },
    { "tag": 115, "required": false },
    { "tag": 116, "required": false },
    { "tag": 122, "required": false },
    { "tag": 128, "required": false },
    { "tag": 129, "required": false }
  ],
  "trailer": [
    { "tag": 93, "required": false },
    { "tag": 89, "required": false },
    { "tag": 10, "required": true }
  ],
  "messages": [
    { "type": "0", "name": "Heartbeat", "members": [
      { "tag": 112, "required": false }
    ] },
    { "type": "1", "name": "TestRequest", "members": [
      { "tag": 112, "required": true }
    ] },
    { "type": "2", "name": "ResendRequest", "members": [
      { "tag": 7, "required": true },
      { "tag": 16, "required": true }
    ] },
    { "type": "3", "name": "Reject", "members": [
      { "tag": 45, "required": true },
      { "tag": 371, "required": false },
      { "tag": 372, "required": false },
      { "tag": 373, "required": false },
      { "tag": 58, "required": false }
    ] },
    { "type": "4", "name": "SequenceReset", "members": [
      { "tag": 36, "required": true },
      { "tag": 123, "required": false }
    ] },
    { "type": "5", "name": "Logout", "members": [
      { "tag": 58, "required": false }
    ] },
    { "type": "A", "name": "Logon", "members": [
      { "tag": 98, "required": true },
      { "tag": 108, "required": true },
      { "tag": 95, "required": false },
      { "tag": 96, "required": false },
      { "tag": 141, "required": false }
    ] },
    { "type": "j", "name": "BusinessMessageReject", "members": [
      { "tag": 45, "required": false },
      { "tag": 372, "required": true },
      { "tag": 380, "required": true },
      { "tag": 58, "required": false }
    ] },
    { "type": "D", "name": "NewOrderSingle", "members": [
      { "tag": 11, "required": true },
      { "tag": 1, "required": false },
      { "group": 78, "required": false, "members": [
        { "tag": 79, "required": true },
        { "tag": 80, "required": false }
      ] },
      { "tag": 21, "required": true },
      { "tag": 55, "required": true },
      { "tag": 54, "required": true },
      { "tag": 38, "required": false },
      { "tag": 60, "required": true },
      { "tag": 40, "required": true },
      { "tag": 44, "required": false },
      { "tag": 58, "required": false }
    ] },
    { "type": "8", "name": "ExecutionReport", "members": [
      { "tag": 37, "required": true },
      { "tag": 11, "required": false },
      { "tag": 17, "required": true },
      { "tag": 20, "required": true },
      { "tag": 150, "required": true },
      { "tag": 39, "required": true },
      { "tag": 55, "required": true },
      { "tag": 54, "required": true },
      { "tag": 38, "required": false },
      { "tag": 44, "required": false },
      { "tag": 151, "required": true },
      { "tag": 14, "required": true },
      { "tag": 6, "required": true },
      { "tag": 60, "required": false },
      { "tag": 58, "required": false }
    ] }
  ]
}
"#;

/// The same for FIX.4.4; the text stands in `examples/FIX44.json`.
pub const SAMPLE_44: &str = r#"{
  "begin": "FIX.4.4",
  "fields": [
    { "tag": 1, "name": "F1", "type": "STRING" },
    { "tag": 6, "name": "F6", "type": "PRICE" },
    { "tag": 7, "name": "F7", "type": "SEQNUM" },
    { "tag": 8, "name": "F8", "type": "STRING" },
    { "tag": 9, "name": "F9", "type": "LENGTH" },
    { "tag": 10, "name": "F10", "type": "STRING" },
    { "tag": 11, "name": "F11", "type": "STRING" },
    { "tag": 14, "name": "F14", "type": "QTY" },
    { "tag": 16, "name": "F16", "type": "SEQNUM" },
    { "tag": 17, "name": "F17", "type": "STRING" },
    { "tag": 20, "name": "F20", "type": "CHAR" },
    { "tag": 21, "name": "F21", "type": "CHAR", "values": ["1", "2", "3"] },
    { "tag": 34, "name": "F34", "type": "SEQNUM" },
    { "tag": 35, "name": "F35", "type": "STRING" },
    { "tag": 36, "name": "F36", "type": "SEQNUM" },
    { "tag": 37, "name": "F37", "type": "STRING" },
    { "tag": 38, "name": "F38", "type": "QTY" },
    { "tag": 39, "name": "F39", "type": "CHAR" },
    { "tag": 40, "name": "F40", "type": "CHAR" },
    { "tag": 43, "name": "F43", "type": "BOOLEAN" },
    { "tag": 44, "name": "F44", "type": "PRICE" },
    { "tag": 45, "name": "F45", "type": "SEQNUM" },
    { "tag": 49, "name": "F49", "type": "STRING" },
    { "tag": 50, "name": "F50", "type": "STRING" },
    { "tag": 52, "name": "F52", "type": "UTCTIMESTAMP" },
    { "tag": 54, "name": "F54", "type": "CHAR", "values": ["1", "2", "3", "4", "5", "6", "7", "8", "9"] },
    { "tag": 55, "name": "F55", "type": "STRING" },
    { "tag": 56, "name": "F56", "type": "STRING" },
    { "tag": 57, "name": "F57", "type": "STRING" },
    { "tag": 58, "name": "F58", "type": "STRING" },
    { "tag": 60, "name": "F60", "type": "UTCTIMESTAMP" },
    { "tag": 78, "name": "F78", "type": "NUMINGROUP" },
    { "tag": 79, "name": "F79", "type": "STRING" },
    { "tag": 80, "name": "F80", "type": "QTY" },
    { "tag": 89, "name": "F89", "type": "DATA" },
    { "tag": 93, "name": "F93", "type": "LENGTH" },
    { "tag": 95, "name": "F95", "type": "LENGTH" },
    { "tag": 96, "name": "F96", "type": "DATA" },
    { "tag": 97, "name": "F97", "type": "BOOLEAN" },
    { "tag": 98, "name": "F98", "type": "INT" },
    { "tag": 108, "name": "F108", "type": "INT" },
    { "tag": 112, "name": "F112", "type": "STRING" },
    { "tag": 115, "name": "F115", "type": "STRING" },
    { "tag": 116, "name": "F116", "type": "STRING" },
    { "tag": 122, "name": "F122", "type": "UTCTIMESTAMP" },
    { "tag": 123, "name": "F123", "type": "BOOLEAN" },
    { "tag": 128, "name": "F128", "type": "STRING" },
    { "tag": 129, "name": "F129", "type": "STRING" },
    { "tag": 141, "name": "F141", "type": "BOOLEAN" },
    { "tag": 150, "name": "F150", "type": "CHAR" },
    { "tag": 151, "name": "F151", "type": "QTY" },
    { "tag": 371, "name": "F371", "type": "INT" },
    { "tag": 372, "name": "F372", "type": "STRING" },
    { "tag": 373, "name": "F373", "type": "INT" },
    { "tag": 380, "name": "F380", "type": "INT" },
    { "tag": 447, "name": "F447", "type": "CHAR" },
    { "tag": 448, "name": "F448", "type": "STRING" },
    { "tag": 452, "name": "F452", "type": "INT" },
    { "tag": 453, "name": "F453", "type": "NUMINGROUP" }
  ],
  "header": [
    { "tag": 8, "required": true },
    { "tag": 9, "required": true },
    { "tag": 35, "required": true },
    { "tag": 34, "required": true },
    { "tag": 49, "required": true },
    { "tag": 52, "required": true },
    { "tag": 56, "required": true },
    { "tag": 43, "required": false },
    { "tag": 50, "required": false },
    { "tag": 57, "required": false },
    { "tag": 97, "required": false },
    { "tag": 115, "required": false },
    { "tag": 116, "required": false },
    { "tag": 122, "required": false },
    { "tag": 128, "required": false },
    { "tag": 129, "required": false }
  ],
  "trailer": [
    { "tag": 93, "required": false },
    { "tag": 89, "required": false },
    { "tag": 10, "required": true }
  ],
  "messages": [
    { "type": "0", "name": "Heartbeat", "members": [
      { "tag": 112, "required": false }
    ] },
    { "type": "1", "name": "TestRequest", "members": [
      { "tag": 112, "required": true }
    ] },
    { "type": "2", "name": "ResendRequest", "members": [
      { "tag": 7, "required": true },
      { "tag": 16, "required": true }
    ] },
    { "type": "3", "name": "Reject", "members": [
      { "tag": 45, "required": true },
      { "tag": 371, "required": false },
      { "tag": 372, "required": false },
      { "tag": 373, "required": false },
      { "tag": 58, "required": false }
    ] },
    { "type": "4", "name": "SequenceReset", "members": [
      { "tag": 36, "required": true },
      { "tag": 123, "required": false }
    ] },
    { "type": "5", "name": "Logout", "members": [
      { "tag": 58, "required": false }
    ] },
    { "type": "A", "name": "Logon", "members": [
      { "tag": 98, "required": true },
      { "tag": 108, "required": true },
      { "tag": 95, "required": false },
      { "tag": 96, "required": false },
      { "tag": 141, "required": false }
    ] },
    { "type": "j", "name": "BusinessMessageReject", "members": [
      { "tag": 45, "required": false },
      { "tag": 372, "required": true },
      { "tag": 380, "required": true },
      { "tag": 58, "required": false }
    ] },
    { "type": "D", "name": "NewOrderSingle", "members": [
      { "tag": 11, "required": true },
      { "group": 453, "required": false, "members": [
        { "tag": 448, "required": true },
        { "tag": 447, "required": false },
        { "tag": 452, "required": false }
      ] },
      { "tag": 1, "required": false },
      { "tag": 21, "required": false },
      { "tag": 55, "required": true },
      { "tag": 54, "required": true },
      { "tag": 38, "required": false },
      { "tag": 60, "required": true },
      { "tag": 40, "required": true },
      { "tag": 44, "required": false },
      { "tag": 58, "required": false }
    ] },
    { "type": "8", "name": "ExecutionReport", "members": [
      { "tag": 37, "required": true },
      { "tag": 11, "required": false },
      { "tag": 17, "required": true },
      { "tag": 150, "required": true },
      { "tag": 39, "required": true },
      { "tag": 55, "required": true },
      { "tag": 54, "required": true },
      { "tag": 38, "required": false },
      { "tag": 44, "required": false },
      { "tag": 151, "required": true },
      { "tag": 14, "required": true },
      { "tag": 6, "required": true },
      { "tag": 60, "required": false },
      { "tag": 58, "required": false }
    ] }
  ]
}
"#;
