//! The frame table and the book for programs in C, and in what calls C: opaque handles, and a number for each answer
//! (own).
//!
//! A handle owns a table with its keeper or its book, or a pass. Every condition of a call is tested here: a caller can
//! pass what it likes, but a pointer that is no handle, one handle twice in a call, or one handle in two calls at a
//! time. `bindings/ksmbook.h` says so in C.
#![tactic(auto)]

mod answer;
mod bookkeeper;
mod books;
mod handle;
mod home;
mod loose;
mod numbers;
mod owner;
mod passes;
mod reader;
mod request;
mod tables;
mod thing;

pub use answer::Answer;
pub use bookkeeper::Bookkeeper;
pub use handle::Handle;
pub use home::Home;
pub use numbers::Numbers;
pub use owner::Owner;
pub use reader::{Phase, Reader};
pub use request::{Made, Request};
pub use thing::Thing;
