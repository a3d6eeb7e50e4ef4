//! Rows that tell what is as expected.

use std::io;

/// Rows on standard output.
#[derive(Drop)]
pub struct Rows<'a> {
    rt: &'a HostRuntime,
    are_as_expected: bool,
}

impl<'a> Rows<'a> {
    pub fn new(rt: &'a HostRuntime) -> Rows<'a> {
        Rows {
            rt,
            are_as_expected: true,
        }
    }

    /// Tells a row: its subject, what of it is looked at, and whether that is as expected.
    pub fn tell(&mut self, subject: &str, what: &str, is_as_expected: bool) -> io::Result<()> {
        if !is_as_expected {
            self.are_as_expected = false;
            return println!(self.rt; "json {subject}, {what}: not as expected");
        }
        println!(self.rt; "json {subject}, {what}: as expected")
    }

    /// Whether every row so far is as expected.
    pub fn are_as_expected(&self) -> bool {
        self.are_as_expected
    }
}
