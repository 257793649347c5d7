//! The kinds that each job knows.
use crate::leq::Leq;
use crate::plus::Plus;
use crate::same::Same;
use kinds::kinds::Both;

/// `plus` (1), `leq` (2) and `same` (3) before the kinds of K.
pub type Base<K> = Both<Plus, Both<Leq, Both<Same, K>>>;
