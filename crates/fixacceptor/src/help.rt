//! The texts of `--help` and `--version`. `main` prints them.

/// What `--version` prints.
pub const VERSION: &str = "fixacceptor 0.1.0\n";

/// What `--help` prints.
pub const HELP: &str = "\
usage: fixacceptor --stdio BEGIN SENDER TARGET
       fixacceptor --help
       fixacceptor --version

Serves one FIX session over one connection, as acceptor, on the standard streams.

  BEGIN   FIX.4.2 or FIX.4.4, BeginString (8)
  SENDER  this program's own CompID: SenderCompID (49) of what it sends
  TARGET  the counterparty's CompID

A CompID has 1 to 64 bytes from 0x20 to 0x7E. For example, on a TCP port:

  socat TCP-LISTEN:5001,reuseaddr EXEC:'fixacceptor --stdio FIX.4.2 SELL BUY'

Where things go:

  standard input   the counterparty's messages
  standard output  the messages to the counterparty
  standard error   a line for each application message: MsgSeqNum (34), Y or N for
                   PossDupFlag (43), and the body with | for SOH; and at the end, for an
                   exit status from 2 on, 'fixacceptor: ' and its name

Exit status:

   0               the counterparty's Logout was answered
   1               the connection closed otherwise
   2  Words        the arguments are others than these
   5  Store        the message store failed
   6  Link         the connection failed
   7  Application  the lines could not be written
   8  Turns        the connection lasted too long
   9  Memory       out of memory
  10  NotBuilt     a message came that isn't answered yet
  11  Numbers      every MsgSeqNum (34) is used
";
