// The columns of the turn table.
#[derive(Clone, Copy)]
pub(crate) enum Column {
    // A request, single-shot or multi-shot.
    Single,
    Multi,
    // 03, 04
    End,
    Tick,
    // 10 to 16
    StartAsked,
    StartAnswered,
    Data,
    EndAsked,
    EndAnswered,
    Aborted,
    Dropped,
}
