//! The eight-byte reals of a GDSII text (GDSII Stream, "Eight-byte real").
//!
//! A [`Real8`] is a sign, a mantissa of 56 bits and a power of 16. Contracts see it as a whole number, its value times 2^312, so that
//! different spellings of one value are equal. No machine float is used: the tests multiply within 128 bits, and decide the exponents that
//! would exceed them beforehand. No call takes memory.
#![tactic(auto)]

mod real8;

pub use real8::Real8;
