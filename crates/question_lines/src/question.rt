//! Which question a line is.

ghost use Rattle.std.specs.Prelude.{◌≡◌, [], ◌∷◌, MatchOption, Option, option_map};
ghost use Rattle.question_lines.specs.Questions.{AreFields, IsQuestion, IsWithin, LacksFields, NotQuestion, cut_at_tabs};
ghost use Rattle.questions.specs.declared.question.Within.{Within as WithinData};

use civil_dates::Date;
use gtfs_text::{date, time};
use questions::{Question, Until, Within};
use std::str;

/// The longest line that is a question, in bytes, without its end.
const LONGEST: usize = 65_536;

// The fields of a line.
#[derive(Clone, Copy)]
struct Fields<'a> {
    from: &'a str,
    to: &'a str,
    day: &'a str,
    time: &'a str,
    // The last time to leave at, if there is one.
    last: Option<&'a str>,
}

// What stands before the first tab, and what after it; none if there is no tab.
fn cut(text: &str) -> Option<(&str, &str)>
    ensures { MatchOption result
        (cut_at_tabs text.now ≡ text.now ∷ [])
        (λ parts. cut_at_tabs text.now ≡ parts.0.now ∷ cut_at_tabs parts.1.now) }
{
    text.split_once('\t')
}

// The four or five fields of a line; none if it has more or fewer.
fn fields_of(text: &str) -> Option<Fields<'_>>
    ensures { MatchOption result (LacksFields text.now)
        (λ f. AreFields text.now f.from.now f.to.now f.day.now f.time.now (option_map (λ last. last.now) f.last)) }
{
    let (from, rest) = cut(text)?;
    let (to, rest) = cut(rest)?;
    let (day, rest) = cut(rest)?;
    match cut(rest) {
        None => Some(Fields {
            from,
            to,
            day,
            time: rest,
            last: None,
        }),
        Some((time, last)) => match cut(last) {
            None => Some(Fields {
                from,
                to,
                day,
                time,
                last: Some(last),
            }),
            Some(_) => None,
        },
    }
}

// Which connections a question on the day asks for, by the text of its last time to leave at; none if that is no time.
fn within_of(last: Option<&str>, day: Date) -> Option<Option<Within>>
    ensures { MatchOption result
        ((within : Option WithinData) → ¬ IsWithin (option_map (λ last. last.now) last.entry) day within)
        (IsWithin (option_map (λ last. last.now) last.entry) day) }
{
    let Some(last) = last else {
        return Some(None);
    };
    let seconds = time(last)?;
    let until = Some(Until { day, seconds });
    Some(Some(Within { until, next: None }))
}

/// The question that a line is; none if it is none.
pub(crate) fn question_of(line: &[u8]) -> Option<Question<'_>>
    ensures { MatchOption result (NotQuestion line.now) (IsQuestion line.now) }
{
    if line.len() > LONGEST {
        return None;
    }
    let Ok(text) = str::from_utf8(line) else {
        return None;
    };
    let fields = fields_of(text)?;
    let day = date(fields.day)?;
    let seconds = time(fields.time)?;
    let within = within_of(fields.last, day)?;
    Some(Question {
        from: fields.from,
        to: fields.to,
        day,
        seconds,
        within,
    })
}
