use std::marker::Model;

/// What a drive behind a lock began with, which no turn changes. No value of it is made.
pub struct Beginning {
    never: u8,
}

impl Model for Beginning {
    ghost use Rattle.fdp_board.specs.Board.{Began, no_beginning};

    ghost Value = { Began };

    ghost view = { λ _. no_beginning };
}
