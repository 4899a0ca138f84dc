// What a line of a script asks of a chain.
ghost use Rattle.std.specs.Prelude.{IfOk, IfSome};
ghost use Rattle.proxy_config.specs.Ranges.{AreFilters, IsBetween, IsFilter, most_octets};

use crate::exchange::words::Words;
use io_ports::NoMemory;
use proxy_config::{Filter, FilterList};
use std::alloc::Global;

/// What is done to a chain.
#[derive(Clone, Copy)]
pub enum ChainAct {
    Offer(u32),
    Release(u32, u32),
    Send(u32),
    Wait(u64),
    Finish,
    Out,
}

/// The act of a line, if it is one of a chain.
pub fn chain_act_of(line: &str) -> Option<ChainAct> {
    let mut words = Words { rest: line };
    match words.next() {
        "offer" => Some(ChainAct::Offer(words.number()?)),
        "release" => {
            let place = words.number()?;
            Some(ChainAct::Release(place, words.number()?))
        }
        "send" => Some(ChainAct::Send(words.number()?)),
        "wait" => Some(ChainAct::Wait(words.long()?)),
        "finish" if words.rest.is_empty() => Some(ChainAct::Finish),
        "out" => Some(ChainAct::Out),
        _ => None,
    }
}

/// The filters that the words name, as far as they are filters.
pub fn filters_of(alloc: Global, words: &mut Words<'_>) -> Result<FilterList, NoMemory>
    ensures { IfOk result AreFilters }
{
    let mut list = FilterList::new(alloc);
    while list.len() < 8 {
        let Some(filter) = filter_of(words) else {
            return Ok(list);
        };
        list.push(filter)?;
    }
    Ok(list)
}

fn filter_of(words: &mut Words<'_>) -> Option<Filter>
    ensures { IfSome result IsFilter }
{
    match words.next() {
        "pass" => Some(Filter::Pass),
        "hold" => {
            let limit = in_range(words.number()?)?;
            Some(Filter::Hold { limit })
        }
        "meter" => {
            let limit = in_range(words.number()?)?;
            let rate = in_range(words.number()?)?;
            Some(Filter::Meter { limit, rate })
        }
        _ => None,
    }
}

fn in_range(n: u32) -> Option<u32>
    ensures { IfSome result (IsBetween 1 most_octets) }
{
    if 1 <= n && n <= 16_777_216 {
        Some(n)
    } else {
        None
    }
}
