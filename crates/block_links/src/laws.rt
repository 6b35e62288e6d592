// What holds of links and of what they cover, each as the contract of a function that does nothing.
ghost use Rattle.block_links.specs.Laws.{ChainsKeepTheStuck, CoversSpan};

/// Operations that are linked as far as one comes before the other have the same that are stuck.
pub fn chains_keep_the_stuck()
    ensures { ChainsKeepTheStuck }
{}

/// Links that cover delays lead along chains to each operation that comes after.
pub fn covers_span()
    ensures { CoversSpan }
{}
