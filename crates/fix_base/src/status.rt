//! How a program ends.
/// The exit status of a program: 0 done, 1 closed otherwise, 2 arguments, 3 settings, 4 dictionary,
/// 5 store, 6 link, 7 application, 8 turns, 9 memory, 10 not built, 11 numbers, 12 drafts,
/// 13 threads.
#[derive(Clone, Copy, Debug, PartialEq, Eq)]
pub struct Status(pub u8);
