//! Worked rows of what threads share, and running out of memory in trees, pools and reports: tests
//! alone.
//!
//! `trees` has the calls on a tree while memory runs out, `pools` those on a pool, `reports` a
//! report to the lock round one: they are made to be run with each allocation failing in turn, as
//! `checks/memory` does; `rt try --test --fail-alloc N` does it for the Nth. One of them in which
//! memory runs out beside its call has nothing to say, and ends in the error that says so.
#![tactic(auto)]

#[cfg(test)]
mod alone;
#[cfg(test)]
mod cases;
#[cfg(test)]
mod end;
#[cfg(test)]
mod epochs;
#[cfg(test)]
mod found;
#[cfg(test)]
mod overtaken;
#[cfg(test)]
mod pools;
#[cfg(test)]
mod reports;
#[cfg(test)]
mod rounds;
#[cfg(test)]
mod trees;
#[cfg(test)]
mod watched;
#[cfg(test)]
mod woken;
