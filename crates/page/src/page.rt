// A page that is being read: what it has on it so far, and what the next number on it is.
use sheet::row::SheetRow;

// What the next number of the line is, with what the line has of a row.
#[derive(Clone, Copy)]
pub(crate) enum Expect {
    Byte,
    Parent,
    Level { parent: u64 },
    Letter(SheetRow),
}

#[derive(Drop)]
pub(crate) struct Page {
    pub(crate) expect: Expect,
    // Whether the rest of the line is a comment; at its end what stood before the comment still counts.
    pub(crate) comment: bool,
    // The number whose digits are being read.
    pub(crate) digits: Option<u64>,
    pub(crate) bytes: Vec<u8>,
    pub(crate) sheet: Vec<SheetRow>,
}
