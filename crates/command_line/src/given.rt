//! What the words say that a fault may be about.

ghost use Rattle.std.specs.Prelude.{◌≡◌};
ghost use Rattle.command_line.specs.Given.{command_places, folder_given, given_by, places_of, search_places, task_places, word_given};

use crate::job::{Command, Plan, Search, Task};
use crate::unread::Word;
use questions::Question;

/// The places of a question, by their ids.
#[derive(Clone, Copy)]
pub struct GivenPlaces<'a> {
    pub from: &'a str,
    pub to: &'a str,
}

/// What the words say that a fault may be about.
#[derive(Clone, Copy)]
pub struct Given<'a> {
    /// The folder of the feed; none for a fault of the words.
    pub feed: Option<&'a str>,
    /// The rule of the zone; none for a fault of the words, and for a command without days.
    pub zone: Option<&'a str>,
    /// The places of the question, if one is asked.
    pub places: Option<GivenPlaces<'a>>,
    /// The word that is at fault, if one is.
    pub word: Option<Word<'a>>,
}

impl<'a> Given<'a> {
    /// What the words of a command without days say: the folder of the feed.
    pub fn folder(feed: &'a str) -> Given<'a>
        ensures { result ≡ folder_given feed.entry }
    {
        Given {
            feed: Some(feed),
            zone: None,
            places: None,
            word: None,
        }
    }

    /// What is said of a fault of the words: the word that is at fault.
    pub fn word(word: Word<'a>) -> Given<'a>
        ensures { result ≡ word_given word.entry }
    {
        Given {
            feed: None,
            zone: None,
            places: None,
            word: Some(word),
        }
    }
}

// The places of a question.
fn places_of<'a>(question: &Question<'a>) -> GivenPlaces<'a>
    ensures { result ≡ places_of question.now }
{
    GivenPlaces {
        from: question.from,
        to: question.to,
    }
}

// The places that a task asks about.
fn task_places<'a>(task: &Task<'a>) -> Option<GivenPlaces<'a>>
    ensures { result ≡ task_places task.now }
{
    match task {
        Task::Ask { question, .. } => Some(places_of(question)),
        Task::List | Task::Audit { .. } | Task::Build { .. } => None,
        Task::Migrate { .. } | Task::Merge { .. } => None,
    }
}

// The places that a search asks about.
fn search_places<'a>(search: &Search<'a>) -> Option<GivenPlaces<'a>>
    ensures { result ≡ search_places search.now }
{
    match search {
        Search::Direct { question }
        | Search::Scan { question, .. }
        | Search::Reach { question, .. } => Some(places_of(question)),
        Search::Stored { task, .. } => task_places(task),
    }
}

// The places that a command asks about.
fn command_places<'a>(command: &Command<'a>) -> Option<GivenPlaces<'a>>
    ensures { result ≡ command_places command.now }
{
    match command {
        Command::Find(search) => search_places(search),
        Command::Matrix { .. } | Command::Serve { .. } => None,
    }
}

/// What the words of a plan say.
pub fn given_by<'a>(plan: &Plan<'a>) -> Given<'a>
    ensures { result ≡ given_by plan.now }
{
    Given {
        feed: Some(plan.settings.feed),
        zone: Some(plan.settings.zone),
        places: command_places(&plan.command),
        word: None,
    }
}
