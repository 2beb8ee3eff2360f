//! Scenarios within the limits, on whose terms the two sides can agree.

ghost use Rattle.std.specs.Prelude.{◌≡◌, ◌≤◌, length, IsTrue};
ghost use Rattle.std.specs.List.{list_all};
ghost use Rattle.terms.specs.Proposals.{can_agree};
ghost use Rattle.scenario.specs.declared.limits.TheConstants.{MAX_CHANNELS as max_channels, MAX_EVENTS as max_events};
ghost use Rattle.scenario.specs.Testing.{blocks_of, have_few_blocks, is_within_limits, first_bad_terms};

use crate::errors::ScenarioError;
use crate::events::Event;
use crate::limits::{MAX_BLOCKS, MAX_CHANNELS, MAX_EVENTS};
use crate::plain::PlainScenario;
use crate::reading::plain_in;
use crate::seeds::Seeds;
use lists::List;
use std::alloc::Global;
use terms::ProposedTerms;

/// A scenario that passed all tests.
#[derive(Debug, Drop)]
pub struct Scenario {
    pub seeds: Seeds,
    /// The terms of at most 8 channels, on which the two sides can agree.
    pub channels: List<ProposedTerms>,
    /// At most 10,000, in order, each with at most 10,000 blocks.
    pub events: List<Event>,
    pub ghost few_channels: { length channels ≤ max_channels },
    pub ghost few_events: { length events ≤ max_events },
    pub ghost few_blocks: { IsTrue (have_few_blocks events) },
    pub ghost agreed: { IsTrue (list_all can_agree channels) },
}

// The number of blocks by which an event grows the chain.
fn blocks_of(event: &Event) -> u64
    ensures { result ≡ blocks_of event.now }
{
    match event {
        Event::Blocks { count } => *count,
        _ => 0,
    }
}

// Whether no event has more blocks than the limit allows.
fn have_few_blocks(events: &[Event]) -> bool
    ensures { result ≡ have_few_blocks events.now }
{
    events.iter().all(|event| blocks_of(event) <= MAX_BLOCKS)
}

// Whether there are no more channels, events, and blocks in one event than the limits allow.
fn is_within_limits(channels: &[ProposedTerms], events: &[Event]) -> bool
    ensures { result ≡ is_within_limits channels.now events.now }
{
    channels.len() <= MAX_CHANNELS && events.len() <= MAX_EVENTS && have_few_blocks(events)
}

// The first channel on whose terms the two sides can't agree.
fn first_bad_terms(channels: &[ProposedTerms]) -> Option<usize>
    ensures { result ≡ first_bad_terms channels.now }
{
    channels.iter().position(|terms| !terms.can_agree())
}

impl Scenario {
    ghost use Rattle.std.specs.Prelude.{◌≡◌};
    ghost use Rattle.std.specs.Result.{result_map_both};
    ghost use Rattle.scenario.specs.Testing.{tested};
    ghost use Rattle.scenario.specs.Reading.{Reads, plain_of, scenario_in};

    // Tests a plain scenario.
    fn tested(plain: PlainScenario) -> Result<Scenario, ScenarioError>
        ensures { result_map_both plain_of (λ e. e) result ≡ tested plain }
    {
        if !is_within_limits(plain.channels.values(), plain.events.values()) {
            return Err(ScenarioError::OverLimit);
        }
        if let Some(channel) = first_bad_terms(plain.channels.values()) {
            return Err(ScenarioError::BadTerms(channel));
        }
        Ok(Scenario {
            seeds: Seeds {
                a: plain.seed_a,
                b: plain.seed_b,
            },
            channels: plain.channels,
            events: plain.events,
        })
    }

    /// Reads a scenario. Its refusals come in this order: invalid JSON (`NotJson`), another shape (`BadShape`), more channels, events, or blocks in one
    /// event than the limits allow (`OverLimit`), and the first channel on whose terms the two sides can't agree (`BadTerms`).
    #[tactic(auto, unfolding(crate::specs::Reading::scenario_in))]
    pub fn read(alloc: Global, bytes: &[u8]) -> Result<Scenario, ScenarioError>
        ensures { Reads plain_of result (scenario_in bytes.now) }
    {
        match plain_in(alloc, bytes) {
            Ok(plain) => Scenario::tested(plain),
            Err(error) => Err(error),
        }
    }
}
