//! A boxed brake is a brake too, so that brakes of several kinds can be kept in one place.

use crate::brake::Brake;

impl Brake for Box<dyn Brake + Send> {
    ghost denials = { λ b. (Brake-box b).denials b.value };

    ghost left = { λ b. (Brake-box b).left b.value };

    ghost answers = { λ b. (Brake-box b).answers b.value };

    ghost asks = { λ b. (Brake-box b).asks b.value };

    fn arm(&mut self, stop: Option<u64>) {
        (**self).arm(stop)
    }

    fn ask(&mut self) -> bool {
        (**self).ask()
    }

    fn answered(&mut self) {
        (**self).answered()
    }
}
