// What holds of generated images, each as the contract of a function that does nothing.
ghost use Rattle.workload.specs.Laws.{GeneratedIsAccepted, BlocksStandInTheirRows};

/// Every generated image is accepted.
pub fn generated_is_accepted()
    ensures { GeneratedIsAccepted }
{}

/// Each row of its block table has the words of its block.
pub fn blocks_stand_in_their_rows()
    ensures { BlocksStandInTheirRows }
{}
