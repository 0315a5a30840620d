// What a build is lent, as one value.

// Stores 1 to 6, of which the first holds the call cells or, in the slim profile, the offset cells. The builds take the
// slices one by one: they lend several at once, and behind a reference to a struct one field at a time is lent.
#[derive(Drop)]
pub struct Stores<'a> {
    pub cells: &'a mut [u16],
    pub handles: &'a mut [u16],
    pub left: &'a mut [u16],
    pub right: &'a mut [u16],
    pub work: &'a mut [u16],
    pub lengths: &'a mut [u8],
}
