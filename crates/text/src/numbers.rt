// Forms and variants by their numbers, as programs and C have them. A number that names nothing has none.
ghost use Rattle.std.specs.Prelude.{◌≡◌};
ghost use Rattle.std.specs.Result.{result_ok};
ghost use Rattle.text.specs.Numbers.{form_named, style_named, variant_named};

use crate::{Form, Style, Variant};
use common::errno::Errno;

// The form of a number: 0 definition, 1 alias. This and the next have a table each: what they share is a `match`.
impl TryFrom<u64> for Form {
    type Error = Errno;

    ghost try_from_gives = { λ n r. result_ok r ≡ form_named n };

    #[tactic(auto, unfolding(crate::specs::Numbers::form_named))]
    fn try_from(form: u64) -> Result<Self, Errno> {
        match form {
            0 => Ok(Form::Definition),
            1 => Ok(Form::Alias),
            _ => Err(Errno::Invalid),
        }
    }
}

// The variant of a number: 0 names, 1 abbreviations.
impl TryFrom<u64> for Variant {
    type Error = Errno;

    ghost try_from_gives = { λ n r. result_ok r ≡ variant_named n };

    #[tactic(auto, unfolding(crate::specs::Numbers::variant_named))]
    fn try_from(variant: u64) -> Result<Self, Errno> {
        match variant {
            0 => Ok(Variant::Names),
            1 => Ok(Variant::Abbreviations),
            _ => Err(Errno::Invalid),
        }
    }
}

// The style of two numbers, a form's and a variant's.
#[tactic(auto, unfolding(crate::specs::Numbers::style_named))]
pub fn style_of(form: u64, variant: u64) -> Option<Style>
    ensures { result ≡ style_named form variant }
{
    let form = Form::try_from(form).ok()?;
    let variant = Variant::try_from(variant).ok()?;
    Some(Style { form, variant })
}
