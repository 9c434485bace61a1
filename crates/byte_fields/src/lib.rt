//! Fields of the project's formats: numbers with the highest byte first, so many bytes, bytes
//! behind their length, and rows behind their count.
#![tactic(auto)]

mod fault;
mod placing;
mod reading;
mod rows;
mod writing;

pub use fault::{FieldFault, TakeFault};
pub use placing::{place_bytes, place_u8, place_u16, place_u32, place_u64};
pub use reading::{
    counted_bytes, fixed_bytes, u8_field, u16_field, u32_field, u32_up_to, u64_field,
};
pub use rows::{PassedRow, Row, skip_counted_rows, skip_rows, take_counted_rows, take_rows};
pub use writing::{PutRow, put_bytes, put_counted, put_rows, put_u8, put_u16, put_u32, put_u64};
