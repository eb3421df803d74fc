// Labels.
ghost use Rattle.std.specs.Prelude.{◌≡◌, ◌&&◌, ltb};
ghost use Rattle.common.specs.Answer.{granted, require};
ghost use Rattle.label.specs.Label.{dominates_of, equal_of, lower_bound_of, upper_bound_of, valid_of, with_category_of};
ghost use Rattle.label.specs.Region.{region_of};
ghost use Rattle.label.specs.Words.{categories, has, next_category_from};
ghost use Rattle.abi.specs.Answer.{label_answer, next_number, number_answer, numbered, test_answer};

use abi::answer;
use abi::answer::{CAnswer, CLabelAnswer};
use label::Label;

#[unsafe(no_mangle)]
pub extern "C" fn lurm_dominates(a: Label, b: Label) -> CAnswer
    ensures { result ≡ test_answer (require (valid_of a && valid_of b) 22 (granted (dominates_of a b))) }
{
    answer::of(label::dominates(a, b))
}

#[unsafe(no_mangle)]
pub extern "C" fn lurm_equal(a: Label, b: Label) -> CAnswer
    ensures { result ≡ test_answer (require (valid_of a && valid_of b) 22 (granted (equal_of a b))) }
{
    answer::of(label::equal(a, b))
}

#[unsafe(no_mangle)]
pub extern "C" fn lurm_upper_bound(a: Label, b: Label) -> CLabelAnswer
    ensures { result ≡ label_answer (require (valid_of a && valid_of b) 22 (granted (upper_bound_of a b))) }
{
    label::upper_bound(a, b).into()
}

#[unsafe(no_mangle)]
pub extern "C" fn lurm_lower_bound(a: Label, b: Label) -> CLabelAnswer
    ensures { result ≡ label_answer (require (valid_of a && valid_of b) 22 (granted (lower_bound_of a b))) }
{
    label::lower_bound(a, b).into()
}

#[unsafe(no_mangle)]
pub extern "C" fn lurm_region_of(a: Label) -> CAnswer
    ensures { result ≡ number_answer (require (valid_of a) 22 (granted (region_of a.hierarchy))) }
{
    answer::of(label::region_of(a))
}

#[unsafe(no_mangle)]
pub extern "C" fn lurm_has_category(a: Label, category: u64) -> CAnswer
    ensures { result ≡ test_answer (require (valid_of a && ltb category categories) 22 (granted (has a.categories category))) }
{
    answer::of(label::has_category(a, category))
}

#[unsafe(no_mangle)]
pub extern "C" fn lurm_with_category(a: Label, category: u64) -> CLabelAnswer
    ensures { result ≡ label_answer (require (valid_of a && ltb category categories) 22 (granted (with_category_of a category))) }
{
    label::with_category(a, category).into()
}

#[unsafe(no_mangle)]
pub extern "C" fn lurm_next_category(a: Label, from: u64) -> CAnswer
    ensures { result ≡ numbered next_number (require (valid_of a) 22 (granted (next_category_from a.categories from))) }
{
    answer::of(label::next_category(a, from))
}
