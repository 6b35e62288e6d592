// What holds of loaded pages, as the contract of a function that does nothing.
ghost use Rattle.page_fault.specs.Laws.{FormsAreOfTheImage};

/// A page in its form has the words that the whole image has there in its program's generation.
pub fn forms_are_of_the_image()
    ensures { FormsAreOfTheImage }
{}
