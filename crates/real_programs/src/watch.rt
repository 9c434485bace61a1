//! A shell that ends the commands of a program that is gone.
use crate::owner::Owner;
use crate::programs::{SHELL, Streams, program, start};
use std::io;
use std::process::{Child, Processes, SystemProcess};
use std::sync::Wait;

// It reads until this program is gone. Then each process of this program's group that was begun in a
// folder of one of its jobs, by the path of its variable PWD or OLDPWD, is stopped with all that it
// started, until nothing more is found, and all of these are killed.
const SCRIPT: &str = r#"trap "" HUP INT QUIT TERM
while read -r it; do :; done
jobs=$1
read -r it < "/proc/$$/stat"
set -- ${it##*) }
group=$3 doomed=" " more=1
while [ "$more" ]; do
  more=
  for at in /proc/[0-9]*; do
    it=
    read -r it < "$at/stat"
    set -- "${it%% *}" ${it##*) }
    case $doomed in
      *" $1 "*) continue ;;
      *" $3 "*) ;;
      *)
        [ "$4" = "$group" ] || continue
        job= it=
        while read -r it || [ "$it" ]; do
          case $it in *PWD=*"$jobs"*) job=1 ;; esac
          it=
        done < "$at/environ"
        [ "$job" ] || continue ;;
    esac
    kill -STOP "$1"
    doomed="$doomed$1 " more=1
  done
done
kill -KILL $doomed"#;

/// The shell, which waits as long as this is kept.
pub struct Watch {
    child: Child<SystemProcess>,
}

impl Drop for Watch {
    fn drop(self) {
        let Watch { mut child } = self;
        let _ = child.kill();
        let _ = child.wait();
    }
}

impl Watch {
    /// Starts the shell. It knows commands by the names of the folders in which they are begun.
    pub fn begin<R>(rt: &R, owner: &Owner) -> io::Result<Watch>
    where
        R: Processes<Started = SystemProcess> + AllocGlobal + Wait,
    {
        let (host, process) = (owner.host(), owner.process());
        let jobs = format!(in rt.alloc(); "/makeflow-{host}-{process}-")?;
        let mut shell = program(rt.alloc(), SHELL, &["-c", SCRIPT, SHELL, jobs.as_str()])?;
        shell.current_dir("/")?;
        let child = start(rt, owner, &shell, &Streams::fed())?;
        Ok(Watch { child })
    }
}
