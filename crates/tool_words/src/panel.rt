// The words of a panel.
ghost use Rattle.std.specs.Prelude.{◌≡◌, map, string_bytes, option_and_then};
ghost use Rattle.run_model.specs.Words as Words;
ghost use Rattle.tool_words.specs.Behind.{or_wrong};
ghost use Rattle.tool_words.specs.Panels as Spec;
ghost use Rattle.tool_words.specs.Panels.{AsksPanel, panel_asked, panel_in, panel_of_words};
ghost use Rattle.tool_words.specs.Requests.{texts};

use crate::behind::{share_standard, words_behind};
use crate::line::{line_matches, values};
use crate::panel_request::{MOST_DESKS, PanelRequest};
use crate::request::{WordsFault, workers_of};
use run_model::Misuse;
use std::alloc::Global;

// Whether a panel can't have so many desks.
fn is_no_panel(desks: &[&str]) -> bool
    ensures { result ≡ Spec.is_no_panel (texts desks.now) }
{
    desks.is_empty() || desks.len() > MOST_DESKS
}

// The request of a panel with its words.
fn panel_of<'a>(
    alloc: Global,
    words: &[&'a str],
    workers: u8,
) -> Result<PanelRequest<'a>, WordsFault>
    ensures { AsksPanel result (or_wrong (panel_of_words workers (texts words.now))) }
{
    let [folder, inputs @ ..] = words else {
        return Err(WordsFault::Misuse(Misuse::Words));
    };
    let [feed, names @ ..] = inputs else {
        return Err(WordsFault::Misuse(Misuse::Words));
    };
    if is_no_panel(names) || share_standard(inputs) {
        return Err(WordsFault::Misuse(Misuse::Words));
    }
    let mut desks = Vec::new(alloc);
    if desks.extend_from_slice(names).is_err() {
        return Err(WordsFault::Memory);
    }
    Ok(PanelRequest {
        folder,
        feed,
        desks,
        workers,
    })
}

// The request of a panel with its words and the numbers of workers.
fn panel_by<'a>(
    alloc: Global,
    words: &[&'a str],
    workers: &[&'a str],
) -> Result<PanelRequest<'a>, WordsFault>
    ensures { AsksPanel result (or_wrong (panel_asked (record { positional = texts words.now; workers = texts workers.now }))) }
{
    match workers_of(workers) {
        Some(workers) => panel_of(alloc, words, workers),
        None => Err(WordsFault::Misuse(Misuse::Words)),
    }
}

// What the words behind `panel` ask for.
fn panel_behind<'a>(alloc: Global, words: &'a [String]) -> Result<PanelRequest<'a>, WordsFault>
    ensures { AsksPanel result (or_wrong (option_and_then panel_asked (Words.parted (map string_bytes words.now)))) }
{
    let matches = match line_matches(alloc, words) {
        Ok(matches) => matches,
        Err(fault) => return Err(fault),
    };
    let none: [&str; 0] = [];
    panel_by(
        alloc,
        values(&matches, "words", &none),
        values(&matches, "workers", &none),
    )
}

/// What the words behind the program's name ask a panel for.
pub fn panel_request_in<'a>(
    alloc: Global,
    words: &'a [String],
) -> Result<PanelRequest<'a>, WordsFault>
    ensures { AsksPanel result (panel_in (map string_bytes words.now)) }
{
    match words_behind("panel", words) {
        Some(rest) => panel_behind(alloc, rest),
        None => Err(WordsFault::Misuse(Misuse::Command)),
    }
}
