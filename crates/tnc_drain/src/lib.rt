// What is left once every whole frame that the reader holds was taken from it and obeyed. `tnc` does it.
#![tactic(auto)]

use host_record::Host;
use kiss_calls::KissBuffer;

#[derive(Clone, Copy)]
pub struct Drained {
    pub buffer: KissBuffer,
    pub host: Host,
}
