// What the tests of runs on workers share. In their tables %HH is the byte with that number.
use std::alloc::Global;
use std::test::Fail;
use test_tables::{decoded, halves};

mod each_setting;
mod gates;
mod held;
mod in_turn;
mod meeting;
mod refusals;
mod rows;
mod silent;
mod statistics;
