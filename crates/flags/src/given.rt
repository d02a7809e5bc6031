// What was given so far: a span for each name.
ghost use Rattle.std.specs.Prelude.{◌≡◌};
ghost use Rattle.flags.specs.Parts.{no_spans, span_of, with_span};

use named::{Name, Span};

#[derive(Clone, Copy)]
pub(crate) struct Given {
    pub choice: Option<Span>,
    pub trace: Option<Span>,
    pub table: Option<Span>,
    pub levels: Option<Span>,
    pub statistics: Option<Span>,
    pub share: Option<Span>,
    pub out: Option<Span>,
}

#[tactic(auto, unfolding(crate::specs::Parts::no_spans))]
pub(crate) fn nothing() -> Given
    ensures { result ≡ no_spans }
{
    Given {
        choice: None,
        trace: None,
        table: None,
        levels: None,
        statistics: None,
        share: None,
        out: None,
    }
}

#[tactic(auto, unfolding(crate::specs::Parts::span_of))]
pub(crate) fn span_of(given: Given, name: Name) -> Option<Span>
    ensures { result ≡ span_of name given }
{
    match name {
        Name::Choice => given.choice,
        Name::Trace => given.trace,
        Name::Table => given.table,
        Name::Levels => given.levels,
        Name::Statistics => given.statistics,
        Name::Share => given.share,
        Name::Out => given.out,
    }
}

#[tactic(auto, unfolding(crate::specs::Parts::with_span))]
pub(crate) fn with_span(given: Given, name: Name, span: Span) -> Given
    ensures { result ≡ with_span name span given }
{
    match name {
        Name::Choice => Given {
            choice: Some(span),
            ..given
        },
        Name::Trace => Given {
            trace: Some(span),
            ..given
        },
        Name::Table => Given {
            table: Some(span),
            ..given
        },
        Name::Levels => Given {
            levels: Some(span),
            ..given
        },
        Name::Statistics => Given {
            statistics: Some(span),
            ..given
        },
        Name::Share => Given {
            share: Some(span),
            ..given
        },
        Name::Out => Given {
            out: Some(span),
            ..given
        },
    }
}
