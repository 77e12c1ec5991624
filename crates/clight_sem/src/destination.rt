// Where a value goes.
use block_mem::{Op, Value, Width};

/// Where the result of a call goes, and how it is converted to the type there. The call finds it before its arguments.
#[derive(Clone, Copy)]
pub enum Destination {
    /// It is dropped.
    Nowhere,
    /// To the temporary of this number.
    Temporary(u32, Op),
    /// To this place.
    Place(Width, Value, Op),
}
