//! What a call of a library gives and no transcript can show. These tests stand above all libraries, since a crate with
//! tests is proved twice.
#![tactic(auto)]

#[cfg(test)]
mod tests;
