//! The binary search.
ghost use Rattle.mailmap_entries.specs.Search.{IsPartitioned};

use mailmap_entries::fold::{Probe, search};
use std::cmp::Ordering;
use std::cmp::Ordering::{Equal, Greater, Less};

/// Answers that are written out, and how many were asked for.
#[derive(Drop)]
struct Written<'a> {
    answers: &'a [Ordering],
    asked: usize,
}

impl Probe for Written<'_> {
    ghost answers = { λ written. written.answers.now };

    ghost asked = { λ written. written.asked };

    fn ask(&mut self, place: usize) -> Ordering {
        self.asked += 1;
        self.answers[place]
    }
}

/// Whether this is found among answers, and how many of them are asked for at most.
fn is_found(answers: &[Ordering], want: Result<usize, usize>, at_most: usize) -> bool
    requires { IsPartitioned answers.now }
{
    let mut probe = Written { answers, asked: 0 };
    (search(answers.len(), &mut probe) == want) & (probe.asked <= at_most)
}

#[test]
#[tactic(auto, unfolding(mailmap_entries::specs::Search::IsPartitioned))]
fn a_search_asks_at_most_once_for_each_digit(rt: HostRuntime) {
    assert!(rt;
        is_found(&[], Err(0), 0)
            & is_found(&[Equal], Ok(0), 1)
            & is_found(&[Less], Err(1), 1)
            & is_found(&[Less, Less, Equal], Ok(2), 2)
            & is_found(&[Less, Less, Greater, Greater], Err(2), 3)
    );
}
