//! Ids in their order.

ghost use Rattle.std.specs.Prelude.{◌≡◌, ℕ, List, [], ◌<◌, length, map, slice_index_or, IfOk};
ghost use Rattle.std.specs.List.{position_from};
ghost use Rattle.std.specs.HashMap.{get_by_text};
ghost use Rattle.std.specs.Str.{bytes_eq};
ghost use Rattle.std.specs.String.{string_bytes};

use std::alloc::{AllocError, Global};
use std::collections::HashMap;
use std::hash::RandomState;
use std::marker::Model;

// The index of each id among others: the first if there are several.
type Numbers = HashMap<String, usize, RandomState>;

/// Ids in their order, and the index of each.
pub struct Ids {
    ids: Vec<String>,
    numbers: Numbers,
}

impl Model for Ids {
    ghost use Rattle.std.specs.Prelude.{◌≡◌, ℕ, List, map};
    ghost use Rattle.std.specs.List.{position_from};
    ghost use Rattle.std.specs.HashMap.{get_by_text};
    ghost use Rattle.std.specs.Str.{bytes_eq};
    ghost use Rattle.std.specs.String.{string_bytes};

    ghost Value = { List (List ℕ) };

    ghost view = { λ a. map string_bytes a.ids.items };

    ghost invariant = { λ a. (id : List ℕ) → get_by_text a.numbers id ≡ position_from (bytes_eq id) 0 (map string_bytes a.ids.items) };
}

impl Drop for Ids {
    fn drop(self) {
        let Ids { ids: _, numbers: _ } = self;
    }
}

fn numbers_of(alloc: Global, hash_keys: RandomState, ids: &[String]) -> Result<Numbers, AllocError>
    ensures { IfOk result (λ numbers. (id : List ℕ)
        → get_by_text numbers id ≡ position_from (bytes_eq id) 0 (map string_bytes ids.now)) }
{
    let mut numbers = HashMap::with_hasher(alloc, hash_keys);
    for (number, id) in ids.iter().enumerate() {
        let text = id.as_str();
        if !numbers.contains_key(text) {
            numbers.insert(String::from_str(alloc, text)?, number)?;
        }
    }
    Ok(numbers)
}

impl Ids {
    /// These ids, looked up under `hash_keys`.
    pub fn new(alloc: Global, hash_keys: RandomState, ids: Vec<String>) -> Result<Ids, AllocError>
        ensures { IfOk result (λ made. made ≡ map string_bytes ids.items) }
    {
        let numbers = numbers_of(alloc, hash_keys, &ids)?;
        Ok(Ids { ids, numbers })
    }

    /// The index of an id.
    pub fn number(&self, id: &str) -> Option<usize>
        ensures { result ≡ position_from (bytes_eq id.now) 0 self.now }
    {
        self.numbers.get(id).copied()
    }

    /// The id at an index.
    pub fn id(&self, number: usize) -> &str
        requires { number < length self.now }
        ensures { result.now ≡ slice_index_or self.now number [] }
    {
        self.ids[number].as_str()
    }
}
