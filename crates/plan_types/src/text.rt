//! Texts: names of columns and tables.
ghost use Rattle.std.specs.Prelude.{◌≡◌, IfOk, IfErr};
ghost use Rattle.std.specs.Str.{chars};
ghost use Rattle.plan_types.specs.Errors.{no_memory};

use crate::error::PlanError;
use arrayvec::ArrayString;
use std::alloc::{AllocError, Global};
use std::cmp::Ordering;
use std::fmt;
use std::hash::{Hash, Hasher};
use std::marker::Model;

/// The most bytes of a text that stands in the value itself, and so takes no memory.
const SHORT: usize = 15;

/// An owned text. Contracts see the list of its characters.
#[derive(Debug, Drop)]
pub struct PlSmallStr {
    kept: Kept,
}

// Where the bytes of a text are.
#[derive(Debug, Drop)]
enum Kept {
    Short(ArrayString<SHORT>),
    Long(String),
}

impl Model for PlSmallStr {
    ghost use Rattle.std.specs.Prelude.{ℕ, List};
    ghost use Rattle.std.specs.Str.{chars};
    ghost use Rattle.plan_types.specs.Texts.{kept_bytes};

    ghost Value = { List ℕ };

    ghost view = { λ text. chars (kept_bytes text.kept) };
}

impl PlSmallStr {
    /// A copy of the text.
    pub fn new(alloc: Global, text: &str) -> Result<PlSmallStr, PlanError>
        ensures ok { IfOk result (λ copy. copy ≡ chars text.now) }
        ensures err { IfErr result (λ error. error ≡ no_memory) }
    {
        let kept = match ArrayString::from(text) {
            Ok(short) => Kept::Short(short),
            Err(_) => Kept::Long(String::from_str(alloc, text)?),
        };
        Ok(PlSmallStr { kept })
    }

    pub fn as_str(&self) -> &str
        ensures { chars result.now ≡ self.now }
    {
        match &self.kept {
            Kept::Short(text) => text.as_str(),
            Kept::Long(text) => text.as_str(),
        }
    }

    pub fn try_clone(&self, alloc: Global) -> Result<PlSmallStr, PlanError>
        ensures ok { IfOk result (λ copy. copy ≡ self.now) }
        ensures err { IfErr result (λ error. error ≡ no_memory) }
    {
        let kept = match &self.kept {
            Kept::Short(text) => Kept::Short(*text),
            Kept::Long(text) => Kept::Long(String::from_str(alloc, text.as_str())?),
        };
        Ok(PlSmallStr { kept })
    }
}

impl Clone for PlSmallStr {
    ghost is_clone = { λ text copy. copy ≡ text };

    #[inline(always)]
    fn clone(&self) -> Result<PlSmallStr, AllocError> {
        let kept = match &self.kept {
            Kept::Short(text) => Kept::Short(*text),
            Kept::Long(text) => Kept::Long(text.clone()?),
        };
        Ok(PlSmallStr { kept })
    }
}

impl fmt::Display for PlSmallStr {
    fn fmt<W: fmt::Write>(&self, f: &mut fmt::Formatter<W>) -> fmt::Result {
        f.write_str(self.as_str())
    }
}

impl PartialEq for PlSmallStr {
    ghost use Rattle.std.specs.Prelude.{nat_eq};
    ghost use Rattle.std.specs.Cmp.Lexicographic.{pointwise};
    ghost use Rattle.std.specs.Cmp as Cmp;
    ghost use Rattle.std.proofs.lemmas.Cmp.{nat_list_eq_equiv};

    ghost eq = { pointwise nat_eq };

    ghost laws = { Cmp.partial_equiv_from_equiv nat_list_eq_equiv };

    fn eq(&self, other: &PlSmallStr) -> bool {
        self.as_str() == other.as_str()
    }
}

impl Eq for PlSmallStr {
    ghost use Rattle.std.proofs.lemmas.Cmp.{nat_list_eq_equiv};

    ghost laws = { nat_list_eq_equiv };
}

/// Texts are in the order of their characters, the first that differ deciding.
impl PartialOrd for PlSmallStr {
    ghost use Rattle.std.specs.Prelude.{Some};
    ghost use Rattle.std.specs.Ordering.{nat_cmp};
    ghost use Rattle.std.specs.Cmp.Lexicographic.{slice_cmp, texts_po};

    ghost partial_cmp = { λ a b. Some (slice_cmp nat_cmp a b) };

    ghost laws = { texts_po };

    fn partial_cmp(&self, other: &PlSmallStr) -> Option<Ordering> {
        Some(self.cmp(other))
    }
}

impl Ord for PlSmallStr {
    ghost use Rattle.std.specs.Prelude.{refl};
    ghost use Rattle.std.specs.Ordering.{nat_cmp};
    ghost use Rattle.std.specs.Cmp.Lexicographic.{slice_cmp, nat_list_cmp_total, texts_ties};

    ghost cmp = { slice_cmp nat_cmp };

    ghost total = { nat_list_cmp_total };

    ghost matches_partial_cmp = { λ a b. refl };

    ghost matches_eq = { texts_ties };

    fn cmp(&self, other: &PlSmallStr) -> Ordering {
        self.as_str().chars().cmp(other.as_str().chars())
    }
}

impl Hash for PlSmallStr {
    ghost use Rattle.std.specs.Prelude.{encode_utf8_all};
    ghost use Rattle.std.specs.Hash as fed;
    ghost use Rattle.std.specs.Cmp.Rules.{hashing};
    ghost use Rattle.std.proofs.Common.{rules};

    ghost hash_input = { λ text. fed.str (encode_utf8_all text) };

    ghost respects_eq = { Prim.search (hashing, rules) };

    fn hash<H: Hasher>(&self, state: &mut H) {
        self.as_str().hash(state);
    }
}
