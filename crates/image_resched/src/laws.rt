// What holds of images in other generations, each as the contract of a function that does nothing.
ghost use Rattle.image_resched.specs.Laws.{RescheduledIsAccepted, RescheduledMeansTheSame, RescheduledKeepsBefore, RescheduledMovesOn, RescheduledFilesAreAccepted, OneRescheduled, EachIsRescheduled, FormsAreThere, PagesMakeTheImage, RescheduledKeepsTheShape};

/// The image in another generation that has the units is accepted.
pub fn rescheduled_is_accepted()
    ensures { RescheduledIsAccepted }
{}

/// Its program means the same, and is in the same state after each number of blocks.
pub fn rescheduled_means_the_same()
    ensures { RescheduledMeansTheSame }
{}

/// "Before" is the same relation among the same operations.
pub fn rescheduled_keeps_before()
    ensures { RescheduledKeepsBefore }
{}

/// It can be moved on to each generation that has the units of the first.
pub fn rescheduled_moves_on()
    ensures { RescheduledMovesOn }
{}

/// The file of the image in another generation breaks no rule, and holds that image.
pub fn rescheduled_files_are_accepted()
    ensures { RescheduledFilesAreAccepted }
{}

/// An image has one image in another generation at most.
pub fn one_rescheduled()
    ensures { OneRescheduled }
{}

/// An accepted image has an image in each generation that has its units.
pub fn each_is_rescheduled()
    ensures { EachIsRescheduled }
{}

/// There is a function that gives each accepted image as it is in each generation that has its units.
pub fn forms_are_there()
    ensures { FormsAreThere }
{}

/// The words of an image are in form where those of each page are.
pub fn pages_make_the_image()
    ensures { PagesMakeTheImage }
{}

/// Each page has the shape that it had.
pub fn rescheduled_keeps_the_shape()
    ensures { RescheduledKeepsTheShape }
{}
