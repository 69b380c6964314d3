//! Questions, asked of the trees that a board shows.

ghost use Rattle.std.specs.Prelude.{◌≡◌, IfOk, MatchResult};
ghost use Rattle.std.specs.List.{All};
ghost use Rattle.section_store.specs.Lasting.{IsExact};
ghost use Rattle.pattern_query.specs.Questions.{IsAnswer, IsRefusal};
ghost use Rattle.planner.specs.Asking.{AreBestBetween, IsAnswered, IsUnanswered, held_by};

use crate::fault::AskFault;
use crate::look::Look;
use crate::plan::Planner;
use board::Reader;
use pattern_query::{Answer, Refusal, ask_on};

impl Planner {
    // The answer from the trees of a look, or why there is none.
    fn answer_on<'a>(
        &'a self,
        look: &Look,
        from: &'a str,
        to: &'a str,
        depart: u32,
    ) -> Result<Answer, Refusal<'a>>
        requires own { look.now.view.origin.form ≡ self.now.form }
        ensures answer { MatchResult result
            (IsAnswer self.now.form.table self.now.names (held_by self.now look.now.view) from.now to.now depart)
            (IsRefusal self.now.form.table self.now.names (held_by self.now look.now.view) from.now to.now depart) }
        ensures exact { All (IsExact self.now.form) look.now.view.origin.opened.list
            → IfOk result (AreBestBetween self.now from.now to.now depart) }
    {
        // It says that the list goes on from the opened trees with such as are complete.
        let _shown = look.view.told();
        ask_on(&self.network, &self.names, look, from, to, depart)
    }

    /// The best journeys between two places, each a stop or a station by its id, at a moment, from the trees that are shown at one look:
    /// at all that the reader saw before and was told of, or at more. The reader comes back, and knows what it saw. It takes no
    /// memory, and waits for nobody.
    ///
    /// If the trees of the first place's stops are complete, these are the best of all journeys of at most the planner's number of rides.
    /// Each tree that was published is complete, and so is each with which the board was opened, if the disk was trusted.
    ///
    /// It is refused if the board gives no look; else as questions are: if an id names nothing, the first before the second; if the
    /// moment isn't covered; and if a tree isn't shown, with the id of the first stop that lacks one.
    pub fn ask<'a>(
        &'a self,
        reader: Reader,
        from: &'a str,
        to: &'a str,
        depart: u32,
    ) -> (Reader, Result<Answer, AskFault<'a>>)
        requires own { reader.origin.form ≡ self.now.form }
        ensures answer { MatchResult result.1
            (IsAnswered self.now reader result.0 from.now to.now depart)
            (IsUnanswered self.now reader result.0 from.now to.now depart) }
        ensures exact { All (IsExact self.now.form) reader.origin.opened.list
            → IfOk result.1 (AreBestBetween self.now from.now to.now depart) }
    {
        let view = match reader.look() {
            Err(reader) => return (reader, Err(AskFault::BoardRefused)),
            Ok(view) => view,
        };
        let look = Look { view };
        let answer = self.answer_on(&look, from, to, depart);
        let Look { view } = look;
        let reader = view.leave();
        match answer {
            Ok(points) => (reader, Ok(points)),
            Err(refusal) => (reader, Err(AskFault::Question(refusal))),
        }
    }
}
