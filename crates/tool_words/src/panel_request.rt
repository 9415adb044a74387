ghost use Rattle.std.specs.Prelude.{◌≤◌, length};
ghost use Rattle.tool_words.specs.declared.panel_request.TheConstants.{MOST_DESKS};

/// How many desks a panel has at most.
pub const MOST_DESKS: usize = 4;

/// What the words of a panel ask for: the names of a folder of tables, a feed and one to four desks, and the number of workers.
#[derive(Debug, Drop)]
pub struct PanelRequest<'a> {
    pub folder: &'a str,
    pub feed: &'a str,
    pub desks: Vec<&'a str>,
    pub workers: u8,
    ghost some: { 1 ≤ length desks.items },
    ghost few: { length desks.items ≤ MOST_DESKS },
}
