// The reply to a job line, and the place where the next line begins.
use replies::Reply;

#[derive(Drop)]
pub struct Answer {
    pub reply: Reply,
    pub next: usize,
}
