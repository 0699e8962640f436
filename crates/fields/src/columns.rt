// The least value of each place, and how far its greatest is above it.
pub use crate::rows::{LEAST, WIDTH};
