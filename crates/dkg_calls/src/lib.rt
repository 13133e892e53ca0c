//! Tests of the values and of the ceremony: each public function is called once, with ample memory, and worked rows come out as they should.
//! They stand apart from those crates, since a crate's own tests are proved together with all of it, once more.
#![tactic(auto)]

#[cfg(test)]
mod asserts;
#[cfg(test)]
mod ceremony;
#[cfg(test)]
mod epochers;
#[cfg(test)]
mod logs;
#[cfg(test)]
mod rounds;
#[cfg(test)]
mod values;
