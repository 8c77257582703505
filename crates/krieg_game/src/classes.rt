use krieg_pack::Belief;
use krieg_words::Words;

/// The positions that are possible once these words were heard of the own move and of the reply.
#[derive(Drop)]
pub struct Class {
    pub own: Words,
    pub reply: Words,
    pub belief: Belief,
}
