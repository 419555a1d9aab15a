//! Between which numbers some numbers lie.

ghost use Rattle.std.specs.Prelude.{◌≡◌, Some};
ghost use Rattle.outcome_tally.specs.Spans.{both_spanned, spanned};

/// The least and the most of some numbers.
#[derive(Clone, Copy, Debug, PartialEq, Eq, Hash)]
pub struct Span {
    pub least: u64,
    pub most: u64,
}

/// The same with one number more.
pub(crate) fn spanned(span: Option<Span>, number: u64) -> Span
    ensures { result ≡ spanned span number }
{
    match span {
        None => Span {
            least: number,
            most: number,
        },
        Some(Span { least, most }) => Span {
            least: if number < least { number } else { least },
            most: if most < number { number } else { most },
        },
    }
}

/// The least and the most of some numbers and of further ones.
pub(crate) fn both_spanned(span: Option<Span>, more: Option<Span>) -> Option<Span>
    ensures { result ≡ both_spanned span more }
{
    match (span, more) {
        (None, more) => more,
        (span, None) => span,
        (Some(span), Some(more)) => Some(Span {
            least: if more.least < span.least {
                more.least
            } else {
                span.least
            },
            most: if span.most < more.most {
                more.most
            } else {
                span.most
            },
        }),
    }
}
