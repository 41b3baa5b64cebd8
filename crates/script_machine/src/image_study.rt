//! What the line `show` tells.
ghost use Rattle.std.specs.Prelude.{◌≡◌};
ghost use Rattle.script_machine.specs.Studies.{IsStudied};

use recover::Study;
use std::marker::Model;

/// The study of an image: there is one that it is the study of, so that its numbers are such as images have.
#[derive(Drop)]
pub struct ImageStudy {
    study: Study,
}

impl Model for ImageStudy {
    ghost use Rattle.recover.specs.declared.studied.Study.{Study};
    ghost use Rattle.script_machine.specs.Studies.{IsStudied};

    ghost Value = { Study };

    ghost view = { λ s. s.study };

    ghost invariant = { λ s. IsStudied s.study };
}

impl ImageStudy {
    /// The study of an image that was read.
    pub fn of(study: Study) -> ImageStudy
        requires { IsStudied study }
        ensures { result ≡ study }
    {
        ImageStudy { study }
    }

    /// The study.
    pub fn study(&self) -> &Study
        ensures study { result.now ≡ self.now }
        ensures studied { IsStudied self.now }
    {
        &self.study
    }
}
