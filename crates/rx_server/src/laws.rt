//! Laws of a server that was closed: the functions do nothing, and their contracts are the laws.

ghost use Rattle.rx_server.specs.Arriving.{EachDeskIsAnswered, EachLetterArrives, EachRequestArrives};
ghost use Rattle.rx_server.specs.Hearing.{EachSinkHears};

use rx_sink::Sink;

/// Of a server that was closed, what each subject received are the letters of its marks; what each drainer received of its pump
/// is the drainer's route, and what each desk's box received of it are the replies to that desk, each followed by a Bye.
pub fn each_letter_arrived<S: Sink>()
    ensures { EachLetterArrives S.acts }
{}

/// Of a server that was closed, what each desk put is what its subject received of it, and what it received of the subject is the
/// first of the replies to it. With the laws of the pumps, what it was answered is what the definitions answer to just that call.
pub fn each_desk_is_answered<S: Sink>()
    ensures { EachDeskIsAnswered S.acts }
{}

/// Of a server that was closed, what each drainer asked its subjects for is what they received of it.
pub fn each_request_arrived<S: Sink>()
    ensures { EachRequestArrives S.acts }
{}

/// The server's sentence: of a server that was closed, what each sink took is a front of what the definitions give its observer
/// for the history of the letters that its subject's box received; and it took all of that where it had no fault, and where its
/// drainer was told to leave behind all that the subject sent it.
pub fn each_sink_hears<S: Sink>()
    ensures { EachSinkHears S.acts }
{}
