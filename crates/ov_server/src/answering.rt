//! Answers to frames.
ghost use Rattle.std.specs.Prelude.{◌≡◌, ℕ, List, [], Ok, OnErr, OnOk};
ghost use Rattle.ov_wire.specs.AnswerForm.{HasAnswerForm};
ghost use Rattle.ov_wire.specs.Frames.{IsFrame};
ghost use Rattle.ov_wire.specs.RequestReading.{request_of};
ghost use Rattle.ov_wire.specs.Requests.{HasRequestForm};
ghost use Rattle.ov_wire.specs.declared.answer.Answer.TheVariants as answers;
ghost use Rattle.ov_protocol.specs.Answers.{welcome_of};
ghost use Rattle.ov_store.specs.Updating.{IsCallOf};
ghost use Rattle.ov_server.specs.Answering.{serving_of, AnswersOrFails, AsksServer};
ghost use Rattle.ov_server.specs.Answering.{IsNewFault, LeavesAsked};

use crate::asking::answer_ask;
use crate::chaining::answer_chain;
use crate::listing::answer_list;
use crate::paging::answer_page;
use crate::reply::reply_with;
use crate::server::Server;
use ov_base::Memory;
use ov_disk::Disk;
use ov_fields::known_tag;
use ov_wire::{Answer, Request, Welcome, WireFault, read_request};

impl<D: Disk> Server<D> {
    /// The answer to Hello.
    fn welcome(&self) -> Answer
        ensures answer { result ≡ answers.Welcome (welcome_of (serving_of self.now)) }
        ensures form { HasAnswerForm result }
    {
        let state = self.store.state();
        let base_check = self.store.base_check();
        known_tag(&base_check);
        Answer::Welcome(Welcome {
            mode: state.mode(),
            epoch: state.epoch(),
            base_check,
        })
    }

    /// Answers a request.
    fn answer_request(&mut self, asked: Request, reply: &mut Vec<u8>) -> Result<(), Memory>
        requires { HasRequestForm asked }
        ensures { (request : List ℕ)
            → request_of request ≡ Ok asked
            → AsksServer D.tells self.old self.new request reply.new.items result }
    {
        self.known();
        let alloc = *reply.allocator();
        let state = self.store.state();
        match asked {
            Request::Hello => reply_with(Ok(self.welcome()), reply),
            Request::Ask { question } => reply_with(answer_ask(alloc, state, &question), reply),
            Request::Cover {
                file,
                length,
                names,
            } => self.cover_and_remember(&file, length, &names, reply),
            Request::Replan { file, length } => self.replan_and_remember(&file, length, reply),
            Request::Update {
                epoch,
                spelling,
                tag,
            } => self.answer_update(epoch, spelling, &tag, reply),
            Request::Chain { user, file } => {
                reply_with(answer_chain(alloc, state, &user, &file), reply)
            }
            Request::Chunk {
                file,
                generation,
                start,
                count,
            } => self.answer_chunk(file, generation, start, count, reply),
            Request::Page { part, number } => {
                reply_with(answer_page(alloc, state, part, number), reply)
            }
            Request::List { file } => reply_with(answer_list(alloc, state, &file), reply),
        }
    }

    /// Answers a frame; the answer takes the place of what `reply` had. Both are without their
    /// length fields. All memory is taken before anything changes.
    pub fn answer(&mut self, request: &[u8], reply: &mut Vec<u8>) -> Result<(), Memory>
        requires { IsFrame request.now }
        // The answer is the one by what the server shows, or says that its disk failed.
        ensures answer { OnOk result (AnswersOrFails D.tells self.old self.new request.now
            reply.new.items) }
        ensures memory { OnErr result ((self.new ≡ self.old) × (reply.new.items ≡ [])) }
        // A crash at any moment of the call leaves the history from before, or it with the
        // request's update.
        ensures any_moment { LeavesAsked D.tells request.now self.old self.new }
        // It is answered that the disk failed only where the disk's count of faults rose in this
        // call, or to an update after one that was answered so.
        ensures call { IsCallOf D.tells self.old self.new
            (IsNewFault self.old request.now reply.new.items) }
    {
        match read_request(*reply.allocator(), request) {
            Ok(asked) => self.answer_request(asked, reply),
            Err(WireFault::Bad { at }) => reply_with(Ok(Answer::BadRequest { at }), reply),
            Err(WireFault::Memory) => reply_with(Err(Memory), reply),
        }
    }
}
