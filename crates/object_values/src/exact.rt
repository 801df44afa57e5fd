// The types whose equality something rests on: at each `==` answers whether two values are equal.
use crate::calls::{Call, CallPart};
use crate::jobs::{FileBody, Job};
use crate::messages::{Message, Status};
use crate::nodes::{Node, ParamValue, Step};
use crate::text::Text;
use sequences::Exact;

impl Exact for Text {
    ghost use Rattle.std.specs.Cmp.Lexicographic.{bytes_decides};

    ghost exact = { bytes_decides };
}

impl Exact for Status {
    ghost use Rattle.object_values.specs.Exact.{status_exact};

    ghost exact = { status_exact };
}

impl Exact for Message {
    ghost use Rattle.object_values.specs.Exact.{message_exact};

    ghost exact = { message_exact };
}

impl Exact for ParamValue {
    ghost use Rattle.object_values.specs.Exact.{param_value_exact};

    ghost exact = { param_value_exact };
}

impl Exact for Step {
    ghost use Rattle.object_values.specs.Exact.{step_exact};

    ghost exact = { step_exact };
}

impl Exact for Node {
    ghost use Rattle.object_values.specs.Exact.{node_exact};

    ghost exact = { node_exact };
}

impl Exact for CallPart {
    ghost use Rattle.object_values.specs.Exact.{call_part_exact};

    ghost exact = { call_part_exact };
}

impl Exact for Call {
    ghost use Rattle.object_values.specs.Exact.{call_exact};

    ghost exact = { call_exact };
}

impl Exact for FileBody {
    ghost use Rattle.object_values.specs.Exact.{file_body_exact};

    ghost exact = { file_body_exact };
}

impl Exact for Job {
    ghost use Rattle.object_values.specs.Exact.{job_exact};

    ghost exact = { job_exact };
}
