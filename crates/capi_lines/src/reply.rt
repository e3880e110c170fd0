// The replies of the two entries. specs/Entries.antt says what each holds.
ghost use Rattle.std.specs.Prelude.{◌≡◌};
ghost use Rattle.replies.specs.Replies.{run_reply};
ghost use Rattle.replies.specs.Internal.{reply_model};
ghost use Rattle.queues.specs.Answers.{addition_model};
ghost use Rattle.lines.specs.Answers.{job_answer, serve_model, served_line};
ghost use Rattle.capi_lines.specs.Entries.{add_reply, serve_reply};
ghost use Rattle.capi_lines.specs.Internal.{cause_reply, JobReplyFits, ServeReplyFits};

use interp::answer::Run;
use lines::answer::{Outside, Served};
use queues::state::AddRefusal;
use replies::{Reply, of_run};

// A status with a cause, 0 if there is none.
fn cause_reply(status: u32, cause: u32) -> Reply
    ensures { reply_model result ≡ cause_reply status cause }
{
    Reply {
        status: status,
        numbers: [cause, 0, 0, 0, 0, 0, 0, 0],
    }
}

pub fn of_added(added: Result<(), AddRefusal>) -> Reply
    ensures { reply_model result ≡ add_reply (addition_model added) }
{
    match added {
        Ok(()) => cause_reply(0, 0),
        Err(AddRefusal::NoLine) => cause_reply(2, 27),
        Err(AddRefusal::Outside) => cause_reply(2, 28),
        Err(AddRefusal::Full) => cause_reply(2, 29),
    }
}

pub fn of_served(served: Option<Served>) -> Reply
    requires { ServeReplyFits served }
    ensures { reply_model result ≡ serve_reply (serve_model served) }
{
    match served {
        None => cause_reply(4, 0),
        Some(job) => of_job(job.answer),
    }
}

// What became of the job that was served.
fn of_job(answer: Result<Run, Outside>) -> Reply
    requires { JobReplyFits answer }
    ensures { reply_model result ≡ run_reply (job_answer answer) }
{
    match answer {
        Ok(run) => of_run(run),
        Err(Outside) => cause_reply(2, 28),
    }
}

// The line that was served, 0 if none was.
pub fn line_of(served: Option<Served>) -> u32
    ensures { result ≡ served_line served }
{
    match served {
        None => 0,
        Some(job) => job.line,
    }
}
