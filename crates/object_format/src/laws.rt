// What holds of files and objects, each as the contract of a function that does nothing.
ghost use Rattle.object_format.specs.Laws.{ReadsBack, WrittenAgain};

/// The file of an object breaks no rule, and holds that object.
pub fn reads_back()
    ensures { ReadsBack }
{}

/// Bytes that break no rule hold an object that keeps the rules, and are its file.
pub fn written_again()
    ensures { WrittenAgain }
{}
