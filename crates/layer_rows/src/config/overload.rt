// What a configuration says of overload.
use crate::config::show::say_word;
use crate::said::Said;
use proxy_config::{Form, OverloadKeys, Point, ShedRow, Trigger};

/// The resources, the triggers and the rows of what is shed.
pub fn say_overload(said: &mut Said, overload: &OverloadKeys) {
    said.say_small("overload ", overload.class_start);
    for name in overload.resources.as_slice() {
        say_word(said, name.as_slice());
    }
    said.say("\n");
    for trigger in overload.triggers.as_slice() {
        say_trigger(said, trigger);
    }
    for row in overload.shed.as_slice() {
        say_shed(said, row);
    }
}

fn say_trigger(said: &mut Said, trigger: &Trigger) {
    said.say_small("trigger ", trigger.action);
    said.say_small(" ", trigger.resource);
    say_form(said, &trigger.form);
}

fn say_shed(said: &mut Said, row: &ShedRow) {
    said.say(match row.point {
        Point::Accept => "shed accept",
        Point::Read => "shed read",
        Point::Drain => "shed drain",
    });
    said.say_small(" ", row.resource);
    say_form(said, &row.form);
}

fn say_form(said: &mut Said, form: &Form) {
    match *form {
        Form::Threshold { value } => said.say_small(" ", value),
        Form::Scaled {
            scaling,
            saturation,
        } => {
            said.say_small(" ", scaling);
            said.say_small(" ", saturation);
        }
    }
    said.say("\n");
}
