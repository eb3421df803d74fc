// How a text is written.
ghost use Rattle.std.specs.Prelude.{◌≡◌};
ghost use Rattle.common.specs.Answer.{answer_of, granted, require};
ghost use Rattle.abi.specs.Style.{formed_of, style_of};

use common::errno::Errno;
use text::{Form, Style, Variant, numbers};

// Form: 0 definition, 1 alias. Variant: 0 names, 1 abbreviations.
#[repr(C)]
#[derive(Clone, Copy)]
pub struct CStyle {
    pub form: u64,
    pub variant: u64,
}

// The style of any numbers, where those that name none are as 0: for what was tested. The conversion refuses them.
pub fn decode(s: CStyle) -> Style
    ensures { result ≡ style_of s }
{
    let (form, variant) = (s.form, s.variant);
    numbers::style_of(form, variant).unwrap_or(Style {
        form: Form::Definition,
        variant: Variant::Names,
    })
}

impl TryFrom<CStyle> for Style {
    type Error = Errno;

    ghost try_from_gives = { λ s r. answer_of r ≡ require (formed_of s) 22 (granted (style_of s)) };

    fn try_from(s: CStyle) -> Result<Style, Errno> {
        numbers::style_of(s.form, s.variant).ok_or(Errno::Invalid)
    }
}
