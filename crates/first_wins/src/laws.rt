// A law of the contracts themselves. The function does nothing; its contract is the law, for every type of entry.
ghost use Rattle.first_wins.specs.Laws.{AnswersArePinned};

// What the contracts of `position`, `enter` and `enter_all` say can be said of one answer only.
pub fn answers_are_pinned<T>()
    ensures { AnswersArePinned T }
{}
