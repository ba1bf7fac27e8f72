//! Rows of the layers between the ground and the top call: what their public calls answer. This crate has tests
//! alone. A crate with tests is proved twice, with and without them, and the libraries that its tests name stand
//! below it, so the tests of the layers stand apart from them; rows of the commands are in `.ci/rows.table`, which
//! the built program is run on.
#![tactic(auto)]

#[cfg(test)]
mod bundles;
#[cfg(test)]
mod checked;
#[cfg(test)]
mod compiled;
#[cfg(test)]
mod counted;
#[cfg(test)]
mod gadget_texts;
#[cfg(test)]
mod gadgets;
#[cfg(test)]
mod parsed;
#[cfg(test)]
mod placed;
#[cfg(test)]
mod register_texts;
#[cfg(test)]
mod reported;
#[cfg(test)]
mod rows;
#[cfg(test)]
mod run;
#[cfg(test)]
mod simplified;
#[cfg(test)]
mod sources;
#[cfg(test)]
mod typed;
#[cfg(test)]
mod unrolled;
