// A link and its calls.
ghost use Rattle.std.specs.Prelude.{◌<◌, ◌≡◌, length};
ghost use Rattle.message.specs.Answers.{message_in};
ghost use Rattle.message.specs.Kinds.{response_in};
ghost use Rattle.message_write.specs.Writing.{request_bytes};
ghost use Rattle.link.specs.Requests.{total};
ghost use Rattle.link.specs.OneLink.{window_fits, outstanding, shape_fits, empty_link, fault_within, issuing, Issues, released, settled_by, answered_by, emptied};
ghost use Rattle.link.specs.Steps.{orderly_bytes, barred_answer, issued_by};

use crate::outcome::{LinkAnswered, LinkIssued, Release};
use crate::request::{Request, following, shifted, stands_before};
use message::{Edition, ID_LIMIT, Span};
use xdr::Refusal;

// The requests are the first `count` entries, the oldest first; the others don't count; calls from an opening leave them
// blank.
#[derive(Clone, Copy)]
pub struct Link {
    pub window: u32,
    pub next: u32,
    pub count: u32,
    pub entries: [Request; 16],
}

// Whether a window is 1 to 16.
pub fn window_fits(window: u32) -> bool
    ensures { result ≡ window_fits window }
{
    1 <= window && window <= Link::WINDOW_LIMIT
}

// What came of an answer with so much data to the oldest request.
fn settled(oldest: Request, data: Span) -> Release
    ensures { result ≡ released oldest «data» }
{
    let Request { id, size } = oldest;
    if data.length == 0 {
        Release::NotAvailable { id, size }
    } else if data.length == size as usize {
        Release::Data { id, size, data }
    } else {
        Release::WrongSize { id, size }
    }
}

// The answer for a request that the window or the limit does not let pass, by what writing it into no room answered: a fault of its fields
// comes first. The fault is the number that the refusal gets.
fn barred(fault: u32, answer: Result<usize, Refusal>) -> Result<usize, Refusal>
    ensures { result ≡ barred_answer fault answer }
{
    match answer {
        Err(r) if r.number != 14 => answer,
        _ => xdr::refused(fault),
    }
}

impl Link {
    // The largest window, which is as many entries as a link has.
    pub const WINDOW_LIMIT: u32 = 16;

    // A link with a window and no requests.
    pub fn empty(window: u32) -> Link
        ensures { result ≡ empty_link window }
    {
        Link {
            window,
            next: 0,
            count: 0,
            entries: [Request { id: 0, size: 0 }; 16],
        }
    }

    // The window, the count and the next ID within their limits.
    fn shape_fits(self) -> bool
        ensures { result ≡ shape_fits self }
    {
        window_fits(self.window) && self.count <= self.window && self.next <= ID_LIMIT
    }

    // The bytes outstanding of a link in order: from the youngest request to the oldest, each held to the ID that follows it.
    pub fn orderly_bytes(self) -> Option<u32>
        ensures { result ≡ orderly_bytes self }
    {
        if !self.shape_fits() {
            return None;
        }
        let mut next = self.next;
        let mut sum = 0;
        for i in (0..self.count as usize).rev() {
            let e = self.entries[i];
            if !stands_before(e, next) {
                return None;
            }
            next = e.id;
            sum += e.size;
        }
        Some(sum)
    }

    // How many requests are outstanding.
    pub fn outstanding(self) -> u32
        ensures { result ≡ length (outstanding self) }
    {
        self.count.min(Link::WINDOW_LIMIT)
    }

    // The sum of their Lengths.
    pub fn outstanding_bytes(self) -> u64
        ensures { result ≡ total (outstanding self) }
    {
        let mut sum = 0;
        for e in &self.entries[..self.outstanding() as usize] {
            sum += e.size as u64;
        }
        sum
    }

    // 16 or 17, where either stands against a request of this length.
    fn fault_within(self, held: u32, limit: u32, size: u32) -> Option<u32>
        ensures { result ≡ fault_within held limit self size }
    {
        if self.window <= self.count || Link::WINDOW_LIMIT <= self.count {
            return Some(16);
        }
        if held as u64 + size as u64 <= limit as u64 {
            return None;
        }
        Some(17)
    }

    // Appends the request that was written, or hands on the refusal.
    fn issued(self, size: u32, filling: Result<usize, Refusal>) -> LinkIssued
        requires { self.count < 16 }
        ensures { result ≡ issued_by self size filling }
    {
        let id = self.next;
        let mut link = self;
        if filling.is_ok() {
            link.entries[self.count as usize] = Request { id, size };
            link.count += 1;
            link.next = following(id);
        }
        LinkIssued { link, id, filling }
    }

    // Writes a Request with the next ID and appends it, where so many bytes are held of a limit.
    pub fn issue(
        self,
        held: u32,
        limit: u32,
        repository: &[u8],
        name: &[u8],
        offset: u64,
        size: u32,
        hash: &[u8],
        out: &mut [u8],
    ) -> LinkIssued
        ensures { Issues (issuing held limit self
            (request_bytes Edition.New repository.now name.now offset size hash.now) size)
            self size out.old result out.new }
    {
        if let Some(fault) = self.fault_within(held, limit, size) {
            let mut none = [0u8; 1];
            let answer = message_write::write_request(
                &mut none, self.next, repository, name, offset, size, hash,
            );
            return LinkIssued {
                link: self,
                id: self.next,
                filling: barred(fault, answer),
            };
        }
        let filling = message_write::write_request(
            out, self.next, repository, name, offset, size, hash,
        );
        self.issued(size, filling)
    }

    // Releases the oldest request, if the ID is its own.
    fn settle(self, id: u32, data: Span) -> LinkAnswered
        ensures { result ≡ settled_by self (outstanding self) id «data» }
    {
        let oldest = self.entries[0];
        if self.count == 0 || oldest.id != id {
            return LinkAnswered {
                link: self,
                release: Err(Refusal::at_start(20)),
            };
        }
        LinkAnswered {
            link: Link {
                count: self.count - 1,
                entries: shifted(self.entries),
                ..self
            },
            release: Ok(settled(oldest, data)),
        }
    }

    // Releases the oldest request by the Response to it.
    pub fn answer(self, message: &[u8]) -> LinkAnswered
        ensures { result ≡ answered_by self (response_in (message_in Edition.New message.now)) }
    {
        match message::response_in(message::read(Edition::New, message)) {
            Ok(x) => self.settle(x.id, x.response.data),
            Err(r) => LinkAnswered {
                link: self,
                release: Err(r),
            },
        }
    }

    // Releases everything: the link is gone.
    pub fn emptied(self) -> Link
        ensures { result ≡ emptied self }
    {
        Link {
            next: self.next,
            ..Link::empty(self.window)
        }
    }
}
