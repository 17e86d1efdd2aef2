// What a record tells of its sheet.

// The name and the packed head of a sheet.
#[derive(Clone, Copy, PartialEq, Eq, Debug)]
pub struct Signature {
    pub name: u16,
    pub head: u64,
}
