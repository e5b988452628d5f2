//! A script beside what it is answered.
use std::alloc::{AllocError, Global};
use std::test::Fail;

/// Lines, and the replies that the rules give them.
#[derive(Drop)]
pub struct Lines {
    pub alloc: Global,
    pub script: String,
    pub replies: String,
}

impl Lines {
    pub fn new(alloc: Global) -> Lines {
        Lines {
            alloc,
            script: String::new(alloc),
            replies: String::new(alloc),
        }
    }

    /// Adds a line and its reply.
    pub fn add(&mut self, line: &str, reply: &str) -> Result<(), AllocError> {
        self.script.push_str(line)?;
        self.script.push_str("\n")?;
        self.replies.push_str(reply)?;
        self.replies.push_str("\n")
    }

    /// Adds each row's line and reply, which a bar stands between.
    pub fn add_all(&mut self, rows: &[&str]) -> Result<(), Fail> {
        for row in rows.iter() {
            let Some((line, reply)) = row.split_once('|') else {
                return Err(Fail::from("a row"));
            };
            self.add(line, reply)?;
        }
        Ok(())
    }
}
