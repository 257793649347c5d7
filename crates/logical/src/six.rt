//! The kinds of row that stand here, in one list.
use crate::any::Any;
use crate::distinct::Distinct;
use crate::extreme::{Max, Min};
use crate::neq::Neq;
use crate::when::When;
use kinds::kinds::{Both, End};

/// `neq` (4), `max` (5), `min` (6), `any` (7), `distinct` (8) and `when` (9).
pub type Six = Both<Neq, Both<Max, Both<Min, Both<Any, Both<Distinct, Both<When, End>>>>>>;
